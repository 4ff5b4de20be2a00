// The nursery's and the elder's lengths.
ghost use Rattle.std.specs.Prelude.{◌≡◌, min};
ghost use Rattle.model.specs.Lists.{sum};
ghost use Rattle.model.specs.Image.{tiles};
ghost use Rattle.image.specs.Tiling.{tile_of};

// After the length x: what is left to fill, and how many places its allocation still takes.
fn tile(left: u64, skip: u64, x: u64) -> Option<(u64, u64)>
    ensures { result ≡ tile_of left skip x }
{
    if 0 < skip {
        return (x == 0).then_some((left, skip - 1));
    }
    if left == 0 {
        return (x == 0).then_some((0, 0));
    }
    if 0 < x && x <= left {
        Some((left - x, x - 1))
    } else {
        None
    }
}

// Do the allocations fill the places below the cursor without gaps?
pub fn tiled(cursor: u64, lengths: &[u64]) -> bool
    ensures { result ≡ tiles cursor 0 lengths.now }
{
    // not by `try_fold`: 14 instructions a length more where nothing is allocated, 3 parts of 100 of a full image's check
    let mut left = cursor;
    let mut skip = 0;
    for x in lengths {
        let Some((l, s)) = tile(left, skip, *x) else {
            return false;
        };
        left = l;
        skip = s;
    }
    left == 0
}

// The sum, or limit if the sum is above it: damaged lengths do not overflow.
pub fn sum_to(limit: u64, lengths: &[u64]) -> u64
    ensures { result ≡ min (sum lengths.now) limit }
{
    // not by `fold` and `saturating_sub`: 0.7 ns a length in place of 0.4
    let mut left = limit;
    for x in lengths {
        if left <= *x {
            return limit;
        }
        left -= *x;
    }
    limit - left
}
