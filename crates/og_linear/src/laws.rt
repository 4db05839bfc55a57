//! What the arithmetic on forms means.
//!
//! These functions do nothing: their clauses are laws about the definitions that other contracts
//! cite.

ghost use Rattle.std.specs.Prelude.{◌≡◌, ℕ, ℤ, pos, ◌+ℤ◌, ◌*ℤ◌, ◌≤ℤ◌, ◌<◌, ◌==◌, ◌↔◌, if◌then◌else◌, List, [], Some, IsSome, length, set, FitsSigned};
ghost use mir.Syntax.{w64};
ghost use Rattle.og_linear.specs.Linear.{Terms, FormValue, form_value, IsProper, val, value_at, put};
ghost use Rattle.og_linear.specs.Tidy.{IsTidy};
ghost use Rattle.og_linear.specs.Arith as arith;
ghost use Rattle.og_linear.specs.Bounded as bounded;
ghost use Rattle.og_linear.specs.Replaced as replaced;

/// The value of each form that the arithmetic makes, at every state.
///
/// A sum's value is the sum of the values, and so on. `replace` puts the other form's value in
/// place of the variable, and `apply` each form's value in place of its variable. A cut is at most
/// 0 exactly where the form is, and `ceil_div` is the least whole number that is not below the
/// quotient.
pub fn value_laws()
    ensures constant { (c : ℤ) (s : List ℤ) → val (form_value [] c) s ≡ c }
    ensures variable { (x : ℕ) (s : List ℤ) → val (arith.variable x) s ≡ value_at s x }
    ensures plus { (f g : FormValue) (s : List ℤ) → val (arith.plus f g) s ≡ val f s +ℤ val g s }
    ensures scaled { (k : ℤ) (f : FormValue) (s : List ℤ) → val (arith.scaled k f) s
        ≡ k *ℤ val f s }
    ensures add_scaled { (f g r : FormValue) (k : ℤ) (s : List ℤ)
        → bounded.add_scaled f k g ≡ Some r
        → val r s ≡ val f s +ℤ k *ℤ val g s }
    ensures replace { (x : ℕ) (f g r : FormValue) (s : List ℤ)
        → IsTidy f.terms
        → replaced.replace x g f ≡ Some r
        → val r s ≡ val f (put s x (val g s)) }
    ensures apply { (m : bounded.MapValue) (f r : FormValue) (s t : List ℤ)
        → bounded.apply m f ≡ Some r
        → ((x : ℕ) → value_at t x ≡ val (bounded.image m x) s)
        → val r s ≡ val f t }
    ensures image { (m : bounded.MapValue) (x y : ℕ) (g : FormValue)
        → bounded.image (bounded.map_set m x g) y ≡ (if y == x then g else bounded.image m y) }
    ensures cut { (f g : FormValue) (d : ℤ) (s : List ℤ)
        → bounded.cut f d ≡ Some g
        → (val f s ≤ℤ pos 0) ↔ (val g s ≤ℤ pos 0) }
    ensures ceiling { (c d : ℤ)
        → pos 1 ≤ℤ d
        → (c ≤ℤ (bounded.ceil_div c d *ℤ d)) × ((bounded.ceil_div c d *ℤ d +ℤ pos 1) ≤ℤ (c +ℤ d)) }
{}

/// A state with one value put into it.
pub fn state_laws()
    ensures put { (s : List ℤ) (x y : ℕ) (v : ℤ)
        → value_at (put s x v) y ≡ (if y == x then v else value_at s y) }
    ensures in_range { (s : List ℤ) (x : ℕ) (v : ℤ) → x < length s → put s x v ≡ set s x v }
    ensures proper { (s : List ℤ) (x : ℕ) (v : ℤ)
        → FitsSigned w64 v
        → IsProper s
        → IsProper (put s x v) }
{}

/// Forms as finite maps from variables to coefficients.
///
/// A form is known by its coefficients and its constant, a sum adds them, a multiple multiplies
/// them, and `add_scaled` has an answer exactly where each product and each sum fits.
pub fn coefficient_laws()
    ensures same { (a b : Terms)
        → IsTidy a
        → IsTidy b
        → ((x : ℕ) → replaced.coefficient x a ≡ replaced.coefficient x b)
        → a ≡ b }
    ensures plus { (a b : Terms) (x : ℕ)
        → IsTidy a
        → IsTidy b
        → replaced.coefficient x (arith.merge a b) ≡ replaced.coefficient x a +ℤ replaced.coefficient x b }
    ensures scaled { (k : ℤ) (a : Terms) (x : ℕ)
        → IsTidy a
        → replaced.coefficient x (arith.scale_terms k a) ≡ k *ℤ replaced.coefficient x a }
    ensures without { (f : FormValue) (x y : ℕ)
        → replaced.coefficient y (replaced.without x f).terms
        ≡ (if y == x then pos 0 else replaced.coefficient y f.terms) }
    ensures fits { (f g : FormValue) (k : ℤ)
        → IsTidy f.terms
        → IsTidy g.terms
        → IsSome (bounded.add_scaled f k g) ↔ replaced.EachFits f k g }
{}
