// The order: a row of 16 bits for each class number, in which bit j of row i is set if class i may flow to class j.
// The tests 3 to 6 of document 01's table, and what is read off an order: the least class, covers, classes above.
// Kept: the class count and the rows are two arguments and no struct of them: the definitions take them so, and the policy stores them apart, among its fields.

#![tactic(auto)]

ghost use Rattle.std.specs.Prelude.{◌≡◌, get_or};
ghost use Rattle.order.specs.Order.{is_class_in, class_set, flows_in, strictly_in, row_fits, rows_fit, antisymmetric_at, antisymmetric, transitive_at, transitive, least_at, least_in, has_least, above_set, above_some, cover_set, above_in, longest_in};

// What stands at a class in an array by class. What a number above 15 has is open in document 01: what is given for none.
pub fn of_class<T: Copy>(by_class: [T; 16], class: usize, none: T) -> T
    ensures { result ≡ get_or by_class class none }
{
    by_class.get(class).copied().unwrap_or(none)
}

// Whether class i may flow to class j. A number above 15, of which document 01 says nothing, flows nowhere, and nothing flows to it.
#[tactic(auto, unfolding(crate::specs::Order::flows_in))]
pub fn flows_in(rows: [u16; 16], i: usize, j: usize) -> bool
    ensures { result ≡ flows_in rows i j }
{
    masks::has(of_class(rows, i, 0), j)
}

// Whether class i is strictly below class j. A number above 15, of which document 01 says nothing, is below and above none.
#[tactic(auto, unfolding(crate::specs::Order::strictly_in))]
pub fn strictly_in(rows: [u16; 16], i: usize, j: usize) -> bool
    ensures { result ≡ strictly_in rows i j }
{
    (i != j) & flows_in(rows, i, j)
}

// Whether a number is a class: one below the class count.
#[tactic(auto, unfolding(crate::specs::Order::is_class_in))]
pub fn is_class(classes: usize, class: usize) -> bool
    ensures { result ≡ is_class_in classes class }
{
    class < classes
}

// The set of all classes.
fn class_set(classes: usize) -> u16
    ensures { result ≡ class_set classes }
{
    masks::below_mask(classes)
}

#[tactic(auto, unfolding(crate::specs::Order::row_fits))]
fn row_fits(classes: usize, class: usize, row: u16) -> bool
    ensures { result ≡ row_fits classes class row }
{
    if is_class(classes, class) {
        masks::includes(class_set(classes), row) & masks::has(row, class)
    } else {
        row == 0
    }
}

// 3: no row has a bit at the class count or above, and each has its own.
pub fn rows_fit(classes: usize, rows: [u16; 16]) -> bool
    ensures { result ≡ rows_fit classes rows }
{
    (0..16).all(|i| row_fits(classes, i, rows[i]))
}

fn antisymmetric_at(rows: [u16; 16], i: usize) -> bool
    ensures { result ≡ antisymmetric_at rows i }
{
    (0..16).all(|j| !(strictly_in(rows, i, j) & flows_in(rows, j, i)))
}

// 4: no two classes flow to each other.
pub fn is_antisymmetric(rows: [u16; 16]) -> bool
    ensures { result ≡ antisymmetric rows }
{
    (0..16).all(|i| antisymmetric_at(rows, i))
}

fn transitive_at(rows: [u16; 16], i: usize) -> bool
    ensures { result ≡ transitive_at rows i }
{
    let row = of_class(rows, i, 0);
    (0..16).all(|j| !flows_in(rows, i, j) | masks::includes(row, rows[j]))
}

// 5: where i may flow to j, it may flow to whatever j may flow to.
pub fn is_transitive(rows: [u16; 16]) -> bool
    ensures { result ≡ transitive rows }
{
    (0..16).all(|i| transitive_at(rows, i))
}

#[tactic(auto, unfolding(crate::specs::Order::least_at))]
fn least_at(classes: usize, rows: [u16; 16], i: usize) -> bool
    ensures { result ≡ least_at classes rows i }
{
    is_class(classes, i) & masks::includes(of_class(rows, i, 0), class_set(classes))
}

// The least class. Where there is none, which document 01 leaves open, 16: no class.
// Kept: 16 and no Option: the clause is the number that the definition `least_in` gives, and `policy::least`, which docs/ name, hands the same on.
pub fn least_in(classes: usize, rows: [u16; 16]) -> usize
    ensures { result ≡ least_in classes rows }
{
    (0..16).find(|i| least_at(classes, rows, *i)).unwrap_or(16)
}

// 6: there is a least class.
#[tactic(auto, using(basics::proofs::Below::first_some), unfolding(crate::specs::Order::least_in, crate::specs::Order::has_least))]
pub fn has_least(classes: usize, rows: [u16; 16]) -> bool
    ensures { result ≡ has_least classes rows }
{
    least_in(classes, rows) < 16
}

// The classes strictly above a class. Of a number that is no class, which document 01 leaves open: what its row has besides itself, and none above 15.
#[tactic(auto, using(crate::proofs::Orders::above_is))]
fn above_set(rows: [u16; 16], class: usize) -> u16
    ensures { result ≡ above_set rows class }
{
    masks::without(of_class(rows, class, 0), masks::class_mask(class))
}

// The classes strictly above some class of the set.
fn above_some(rows: [u16; 16], set: u16) -> u16
    ensures { result ≡ above_some rows set }
{
    let mut found = 0u16;
    for k in 0..16 {
        if masks::has(set, k) {
            found |= above_set(rows, k);
        }
    }
    found
}

// The classes that cover a class: those above it with nothing between. Of a number that is no class, which document 01 leaves open: the same of its row, and none above 15.
#[tactic(auto, using(crate::proofs::Orders::covers_are))]
pub fn cover_set(rows: [u16; 16], class: usize) -> u16
    ensures { result ≡ cover_set rows class }
{
    let above = above_set(rows, class);
    masks::without(above, above_some(rows, above))
}

// How many classes are strictly above a class. For a number above 15, which document 01 leaves open, 0.
#[tactic(auto, using(crate::proofs::Orders::above_size))]
pub fn above_in(rows: [u16; 16], class: usize) -> usize
    ensures { result ≡ above_in rows class }
{
    masks::size(above_set(rows, class))
}

// W-212: the number of classes on the longest rising chain from a class, the class counted. Of a number above 15, which document 02 leaves open, 0.
pub fn longest_in(rows: [u16; 16], class: usize) -> u32
    ensures { result ≡ longest_in rows class }
{
    let mut risen = masks::class_mask(class);
    for steps in 0..16 {
        if risen == 0 {
            return steps;
        }
        risen = above_some(rows, risen);
    }
    16
}
