//! The rows of a matrix.

ghost use Rattle.op_laws.specs.Matrices.{rows_of};
ghost use Rattle.matrix_skel.specs.Given.{IsRect};

use op_laws::Matrix;

// The rows are equally long, and have few cells of the matrix's type. It does nothing: its clause is
// for proofs that go over parts of the matrix.
#[inline(always)]
pub fn table(a: &Matrix)
    ensures { IsRect a.now.ty a.now.rows a.now.cols (rows_of a.now) }
{
    a.cells().admitted();
}
