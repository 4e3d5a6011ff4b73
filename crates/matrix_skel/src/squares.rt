//! The blocks of a matrix.

ghost use Rattle.std.specs.Prelude.{◌≡◌, ℕ, ◌+◌, ◌-◌, ◌*◌, ◌/◌, ◌%◌, ◌<◌, ◌≤◌};
ghost use Rattle.matrix_skel.specs.Blocks.{cut_at};

use op_laws::Matrix;

/// Rows or columns cut into runs that are equally long, but for the last, which may be shorter.
#[derive(Clone, Copy, Debug)]
pub struct Runs {
    len: u32,
    block: u32,
    count: u32,
    ghost some: { 1 ≤ count },
    ghost fewer: { count ≤ len },
    ghost covers: { len ≤ count * block },
    ghost begins: { (t : ℕ) → t < count → t * block < len },
}

impl Runs {
    /// Runs of `block` rows or columns each.
    pub fn of(len: u32, block: u32) -> Runs
        requires some_len { 1 ≤ len }
        requires some_block { 1 ≤ block }
        ensures len { result.len ≡ len }
        ensures block { result.block ≡ block }
    {
        let count = (len - 1) / block + 1;
        Runs { len, block, count }
    }

    /// How many there are.
    #[inline(always)]
    pub fn count(self) -> u32
        ensures { result ≡ self.count }
    {
        self.count
    }

    /// Where run `t` begins; of the count of runs, where the last ends.
    #[inline(always)]
    pub fn at(self, t: u32) -> u32
        requires { t ≤ self.count }
        ensures value { result ≡ cut_at self.len self.block t }
        ensures within { result ≤ self.len }
    {
        if t < self.count {
            t * self.block
        } else {
            self.len
        }
    }

    /// Where run `t` ends.
    #[inline(always)]
    pub fn end(self, t: u32) -> u32
        requires { t < self.count }
        ensures value { result ≡ cut_at self.len self.block (t + 1) }
        ensures within { result ≤ self.len }
        ensures later { cut_at self.len self.block t < result }
    {
        self.at(t + 1)
    }

    /// How long they are together.
    #[inline(always)]
    pub fn len(self) -> u32
        ensures value { result ≡ self.len }
        ensures last { cut_at self.len self.block self.count ≡ result }
    {
        self.len
    }
}

/// The blocks of a matrix, block row after block row.
#[derive(Clone, Copy, Debug)]
pub struct Squares {
    pub down: Runs,
    pub right: Runs,
    pub count: u32,
    ghost all: { count ≡ down.count * right.count },
}

impl Squares {
    /// Blocks of so many rows and columns each.
    pub fn of(a: &Matrix, block: u32) -> Squares
        requires { 1 ≤ block }
        ensures rows { result.down.len ≡ a.now.rows }
        ensures cols { result.right.len ≡ a.now.cols }
    {
        let down = Runs::of(a.rows(), block);
        let right = Runs::of(a.cols(), block);
        let count = down.count() * right.count();
        Squares { down, right, count }
    }

    /// The block row of block `t`.
    #[inline(always)]
    pub fn row_of(self, t: u32) -> u32
        requires { t < self.count }
        ensures value { result ≡ t / self.right.count }
        ensures within { result < self.down.count }
    {
        t / self.right.count()
    }

    /// The block column of block `t`.
    #[inline(always)]
    pub fn col_of(self, t: u32) -> u32
        requires { t < self.count }
        ensures value { result ≡ t % self.right.count }
        ensures within { result < self.right.count }
    {
        t % self.right.count()
    }

    /// The number of the block in block row `p` and block column `q`.
    #[inline(always)]
    pub fn place(self, p: u32, q: u32) -> u32
        requires row { p < self.down.count }
        requires column { q < self.right.count }
        ensures within { result < self.count }
        ensures row { result / self.right.count ≡ p }
        ensures column { result % self.right.count ≡ q }
    {
        p * self.right.count() + q
    }
}
