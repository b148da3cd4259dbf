// Rows that are solved where they lie, over any scalar: m rows of m matrix numbers and two right sides.
ghost use Rattle.std.specs.Prelude.{◌≡◌, List, [], ℕ, ◌+◌, ◌<◌, length, get_or, set};
ghost use Rattle.meaning.specs.Scalar.{Ops};
ghost use Rattle.solve.specs.Rows.{Shaped};
ghost use Rattle.solve.specs.Left.{Becomes};
ghost use Rattle.solve.specs.Pivot.{pivot};
ghost use Rattle.solve.specs.Elimination.{exchanged, reduced};
ghost use Rattle.solve.specs.Substitution.{answered_up};
ghost use Rattle.solve.specs.Verdicts.{reduced_ok, answered_up_ok};

// What holds such rows and takes the steps of a solve on them. A step may be asked of any row and column: what it makes of the rows is said where there
// are such, and that it touches nothing else of all. Each step that stores numbers answers whether they are finite, and the multiplier too.
pub trait Rows {
    // The scalar.
    type Number;
    // What is kept of a pivot's row while other rows are reduced by it.
    type Pivot: Drop;

    ghost ops: { Ops Self.Number };
    // the rows, in their order
    ghost rows: { Self → List (List Self.Number) };
    // b has as many rows as a in the same place, and differs in nothing else
    ghost same: { Self → Self → Type 0 };
    // what was kept is row col
    ghost kept: { Self → ℕ → Self.Pivot → Type 0 };

    // How many rows there are.
    fn count(&self) -> usize
        ensures count { result ≡ length (rows self.now) }
        ensures shape { Shaped result (result + 2) (rows self.now) };

    // The row with column col's pivot.
    fn find_pivot(&self, col: usize) -> usize
        ensures { let m = length (rows self.now) in col < m → result ≡ pivot ops m col (rows self.now) };

    // Rows i and j exchanged.
    fn exchange(&mut self, i: usize, j: usize)
        ensures rows { let m = length (rows self.old) in i < m → j < m → rows self.new ≡ exchanged (rows self.old) i j }
        ensures same { same self.old self.new };

    // Row col, to reduce others by it.
    fn pivot_row(&self, col: usize) -> Self::Pivot
        ensures { col < length (rows self.now) → kept self.now col result };

    // Row r below row col, reduced by it.
    fn reduce(&mut self, pivot: &Self::Pivot, col: usize, r: usize) -> bool
        ensures rows { let m = length (rows self.old) in kept self.old col pivot.now → col < r → r < m
            → Becomes (λ M. set M r (reduced ops m col (get_or M col []) (get_or M r []))) (λ M. reduced_ok ops m col (get_or M col []) (get_or M r []))
            (rows self.old) (rows self.new) result }
        ensures kept { kept self.old col pivot.now → col < r → r < length (rows self.old) → kept self.new col pivot.now }
        ensures same { same self.old self.new };

    // The row that has i rows below it answered, once those hold their answers.
    fn answer(&mut self, i: usize) -> bool
        ensures rows { let m = length (rows self.old) in i < m
            → Becomes (answered_up ops m i) (answered_up_ok ops m i) (rows self.old) (rows self.new) result }
        ensures same { same self.old self.new };

    ghost again: { (a : Self) → same a a };

    ghost along: { (a b c : Self) → same a b → same b c → same a c };

    ghost as_many: { (a b : Self) → same a b → length (rows b) ≡ length (rows a) };
}
