//! What holds of every matrix. This call does nothing: its clause is for proofs above.

ghost use Rattle.op_laws.specs.Matrices.{rows_of};
ghost use Rattle.matrix_catalog.specs.Pairs.{IsTable};

use op_laws::Matrix;

/// The rows of a matrix are such as operators on matrices are known on.
#[inline(always)]
pub fn matrices_are_tables(matrix: &Matrix)
    ensures { IsTable matrix.now.ty (rows_of matrix.now) }
{
    matrix.cells().admitted();
}
