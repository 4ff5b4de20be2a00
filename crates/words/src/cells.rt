// Cells in words of a slice.
ghost use Rattle.std.specs.Prelude.{◌≡◌, true, length};
ghost use Rattle.model.specs.Records.{whole_cells};

// Whole, valid cells.
#[derive(Clone, Copy)]
pub struct Cells<'a> {
    pub words: &'a [u64],
    ghost whole: { whole_cells words.now ≡ true },
}

// A single one.
#[derive(Clone, Copy)]
pub struct Cell<'a> {
    pub words: &'a [u64],
    pub ghost one: { length words.now ≡ 3 },
    pub ghost whole: { whole_cells words.now ≡ true },
}
