// The type of a chain. It stands in a module of its own, since its ghost fields import what this file imports.
ghost use Rattle.std.specs.Prelude.{ℕ, ◌^◌, ◌<◌, get_or};

// A chain in rows as a caller lends it: its order and its three lists, whether they make a chain or not. The lists are of 32-bit numbers.
#[derive(Clone, Copy)]
pub struct Chain<'a> {
    pub order: usize,
    pub starts: &'a [u32],
    pub columns: &'a [u32],
    pub rates: &'a [u32],
    ghost starts_fit: { (place : ℕ) → get_or starts.now place 0 < 2 ^ 32 },
    ghost rates_fit: { (place : ℕ) → get_or rates.now place 0 < 2 ^ 32 },
}
