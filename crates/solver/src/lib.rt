//! Linear equations over GF(128), solved by elimination.

#![tactic(auto)]

ghost use Rattle.std.specs.Prelude.{◌≡◌, ℕ, ◌%◌, ◌<◌, ◌≤◌, min, List, [], ◌∷◌, ◌++◌, length, take, Some, None, MatchOption, slice_index, slice_index_or};
ghost use Rattle.solver.specs.Linear.{side, Solve};
ghost use Rattle.solver.specs.Elimination.{Clear, Solved, Combined, Eliminated};

use field::{inverse, product};
use std::array;

/// Values of the unknowns, at most six, that solve the equations; nothing where there are none. Where the equations leave an
/// unknown free, its value is any.
pub fn solve(equations: &[[u8; 7]; 6], unknowns: usize) -> Option<[u8; 6]>
    ensures some { (xs : List ℕ) → result ≡ Some xs → Solve equations.now (take (min unknowns 6) xs) }
    ensures small { (xs : List ℕ) → result ≡ Some xs → (k : ℕ) → slice_index xs k < 128 }
    ensures none { result ≡ None → (ys : List ℕ) → length ys ≡ min unknowns 6 → Solve equations.now ys → ⊥ }
{
    let mut rows = *equations;
    solve_from(&mut rows, 0, unknowns.min(6))
}

/// Solves the equations from the column `col` up to the constant at `v`, the values going to their columns.
fn solve_from(rows: &mut [[u8; 7]], col: usize, v: usize) -> Option<[u8; 6]>
    requires { (col ≤ v) × (v ≤ 6) }
    ensures { Solved col v rows.old result }
{
    let Some(p) = pivot(rows, col) else {
        return if col == v {
            Some([0; 6])
        } else {
            solve_from(rows, col + 1, v)
        };
    };
    if col == v {
        return None;
    }
    let row = rows[p];
    eliminate(rows, &row, col);
    let mut xs = solve_from(rows, col + 1, v)?;
    let rest = left_side(&row[col + 1..v], row[v], &xs[col + 1..v]);
    xs[col] = product(inverse(row[col]), rest);
    Some(xs)
}

/// The first equation with a coefficient in the column.
fn pivot(rows: &[[u8; 7]], col: usize) -> Option<usize>
    requires { col < 7 }
    ensures { MatchOption result (Clear rows.now col)
        (λ i. (i < length rows.now) × (0 < slice_index (slice_index_or rows.now i []) col % 128)) }
{
    rows.iter().position(|row| row[col] % 128 != 0)
}

/// Takes the pivot out of each equation.
fn eliminate(rows: &mut [[u8; 7]], pivot: &[u8; 7], col: usize)
    requires { col < 7 }
    ensures { Eliminated col pivot.now rows.old rows.new }
{
    for row in rows.iter_mut() {
        *row = combined(pivot[col], row, row[col], pivot);
    }
}

/// a·row + b·other.
fn combined(a: u8, row: &[u8; 7], b: u8, other: &[u8; 7]) -> [u8; 7]
    ensures { Combined a row.now b other.now result }
{
    array::from_fn(|k| product(a, row[k]) ^ product(b, other[k]))
}

/// The left side of an equation.
fn left_side(coefficients: &[u8], constant: u8, xs: &[u8]) -> u8
    requires { length coefficients.now ≡ length xs.now }
    ensures { result ≡ side (coefficients.now ++ constant ∷ []) xs.now }
{
    coefficients
        .iter()
        .zip(xs)
        .fold(constant % 128, |sum, (a, x)| sum ^ product(*a, *x))
}
