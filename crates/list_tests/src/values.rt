//! What no clause says: that a list takes its elements where there is memory (in each row of the
//! first test the columns grow several times), one by one or those of another list, and that a
//! matrix is read as it is written.

use op_laws::{ElemType, List, MAX_ELEMENTS, Matrix, Tup, Width};
use std::test::Fail;

const LEAST_64: i128 = -9223372036854775808;

const LEAST_128: i128 = -170141183460469231731687303715884105728;

#[test]
fn a_list_gives_the_elements_that_were_pushed(rt: HostRuntime) -> Result<(), Fail> {
    let one_64 = ElemType::one(Width::W64);
    let one_128 = ElemType::one(Width::W128);
    let four_64 = one_64.push(Width::W64).push(Width::W64).push(Width::W64);
    let four_128 = one_128
        .push(Width::W128)
        .push(Width::W128)
        .push(Width::W128);
    let mixed = one_64.push(Width::W128).push(Width::W128).push(Width::W64);
    let rows = [
        (one_64, [Tup::one(LEAST_64), Tup::one(7), Tup::one(-1)]),
        (one_128, [Tup::one(LEAST_128), Tup::one(7), Tup::one(-1)]),
        (
            four_64,
            [
                Tup::four(LEAST_64, 2, 3, 4),
                Tup::four(5, 6, 7, 8),
                Tup::four(9, 10, 11, 12),
            ],
        ),
        (
            four_128,
            [
                Tup::four(1, LEAST_128, 3, 4),
                Tup::four(5, 6, 7, 8),
                Tup::four(9, 10, 11, 12),
            ],
        ),
        (
            mixed,
            [
                Tup::four(LEAST_64, LEAST_128, 3, 4),
                Tup::four(5, 6, 7, 8),
                Tup::four(9, 10, 11, 12),
            ],
        ),
    ];
    for (ty, elements) in &rows {
        let elements = &elements[..];
        let mut list = List::new(rt.alloc(), *ty);
        for i in 0..300 {
            let t = elements[i % 3];
            assert!(rt; list.ty().admits(t), "{ty:?} admits {t:?}");
            assert!(rt; list.len() < MAX_ELEMENTS);
            list.push(t)?;
        }
        assert_eq!(rt; list.len(), 300);
        for i in 0..300 {
            assert_eq!(rt; list.at(i), elements[i as usize % 3], "{ty:?} at {i}");
        }
    }
    Ok(())
}

#[test]
fn a_matrix_gives_its_cells_by_row_and_column(rt: HostRuntime) -> Result<(), Fail> {
    let numbers = [1, 2, 3, 4, 5, 6].to_vec(rt.alloc())?;
    let matrix = Matrix::of_cells(2, 3, List::of_w64(numbers));
    let table = [
        (0, 0, 1),
        (0, 1, 2),
        (0, 2, 3),
        (1, 0, 4),
        (1, 1, 5),
        (1, 2, 6),
    ];
    for (i, j, number) in table {
        assert!(rt; i < matrix.rows());
        assert!(rt; j < matrix.cols());
        assert_eq!(rt; matrix.at(i, j), Tup::one(number), "row {i}, column {j}");
    }
    assert_eq!(rt; (matrix.rows(), matrix.cols()), (2, 3));
    assert_eq!(rt; matrix.cells().len(), 6);
    assert_eq!(rt; matrix.into_cells().len(), 6);
    Ok(())
}

#[test]
fn a_list_of_one_column_takes_the_elements_of_another(rt: HostRuntime) -> Result<(), Fail> {
    let mut list = List::of_w64([1, 2, 3].to_vec(rt.alloc())?);
    let other = List::of_w64([4, 5, 6, LEAST_64 as i64].to_vec(rt.alloc())?);
    assert!(rt; list.len() == 3);
    assert!(rt; other.len() == 4);
    list.reserve(40)?;
    list.append(&other)?;
    list.append_range(&other, 1, 3)?;
    list.append_range(&other, 4, 4)?;
    list.reverse();
    let seven = Tup::one(7);
    assert!(rt; list.len() == 9);
    assert!(rt; list.ty().admits(seven));
    list.set(8, seven);
    assert_eq!(rt;
        list.numbers_64(0),
        [6, 5, LEAST_64 as i64, 6, 5, 4, 3, 2, 7].as_slice()
    );
    Ok(())
}

#[test]
fn a_list_of_two_columns_takes_the_elements_of_another(rt: HostRuntime) -> Result<(), Fail> {
    let ty = ElemType::one(Width::W64).push(Width::W128);
    let first = Tup::two(1, LEAST_128);
    let second = Tup::two(2, 20);
    assert!(rt; ty.admits(first));
    assert!(rt; ty.admits(second));
    let mut list = List::new(rt.alloc(), ty);
    let mut other = List::new(rt.alloc(), ty);
    list.push(first)?;
    other.push(second)?;
    other.push(first)?;
    assert!(rt; list.len() == 1);
    assert!(rt; other.len() == 2);
    list.append(&other)?;
    list.append_range(&other, 0, 1)?;
    list.reverse();
    assert!(rt; list.len() == 4);
    list.set(0, first);
    assert_eq!(rt; list.numbers_64(0), [1, 1, 2, 1].as_slice());
    assert_eq!(rt;
        list.numbers_128(1),
        [LEAST_128, LEAST_128, 20, LEAST_128].as_slice()
    );
    Ok(())
}
