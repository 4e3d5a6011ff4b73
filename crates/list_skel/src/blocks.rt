//! The blocks of a list.

ghost use Rattle.std.specs.Prelude.{◌≡◌, ℕ, ◌+◌, ◌-◌, ◌*◌, ◌<◌, ◌≤◌};
ghost use Rattle.op_laws.specs.declared.TheConstants.{MAX_ELEMENTS as MOST};
ghost use Rattle.list_skel.specs.Blocks.{cut_at, outer_places};

/// A list's places cut into blocks that are equally long, but for the last, which may be shorter.
#[derive(Clone, Copy, Debug)]
pub struct Blocks {
    len: u32,
    block: u32,
    count: u32,
    ghost few: { len ≤ MOST },
    ghost covers: { len ≤ count * block },
    ghost begins: { (t : ℕ) → t < count → t * block < len },
}

impl Blocks {
    /// Blocks of `block` places each.
    pub fn of(len: u32, block: u32) -> Blocks
        requires { 1 ≤ block }
        ensures len { result.len ≡ len }
        ensures block { result.block ≡ block }
    {
        let count = count_of(len, block);
        Blocks { len, block, count }
    }

    /// How many there are.
    #[inline(always)]
    pub fn count(self) -> u32
        ensures { result ≡ self.count }
    {
        self.count
    }

    /// Where block `t` begins; of the count of blocks, where the list ends.
    #[inline(always)]
    pub fn at(self, t: u32) -> u32
        requires { t ≤ self.count }
        ensures { result ≡ cut_at self.len self.block t }
    {
        if t < self.count {
            t * self.block
        } else {
            self.len
        }
    }

    /// Where block `t` ends.
    #[inline(always)]
    pub fn end(self, t: u32) -> u32
        requires { t < self.count }
        ensures { result ≡ cut_at self.len self.block (t + 1) }
    {
        self.at(t + 1)
    }

    /// How many places stand before block `t`; with `back`, behind it.
    #[inline(always)]
    pub fn outside(self, t: u32, back: bool) -> u32
        requires { t < self.count }
        ensures { result ≡ outer_places back self.len self.block t }
    {
        if back {
            self.len - self.end(t)
        } else {
            self.at(t)
        }
    }
}

// How many blocks so many places make.
fn count_of(len: u32, block: u32) -> u32
    requires { 1 ≤ block }
    ensures covers { len ≤ result * block }
    ensures begins { (t : ℕ) → t < result → t * block < len }
{
    if len == 0 {
        return 0;
    }
    (len - 1) / block + 1
}
