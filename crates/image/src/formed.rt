// An image that 1 and 2 were asked of, as it is read. What writes one takes the words and requires their form: between the writes of a
// step, and after a refusal, they are free, and a ghost field would have to hold there too.
ghost use Rattle.model.specs.Image.{decode};
ghost use Rattle.theorems.specs.Fit.{Image};

#[derive(Clone, Copy)]
pub struct Formed<'a> {
    pub words: &'a [u64],
    pub ghost formed: { Image words.now (decode words.now) },
}
