//! Laws of the definitions.

ghost use Rattle.std.specs.Prelude.{◌≡◌, ℕ, None, List};
ghost use Rattle.og_typed.specs.Syntax.{Program};
ghost use Rattle.og_cond.specs.Conditions.{conditions};
ghost use Rattle.og_report_text.specs.Listing.{conditions_lines};
ghost use Rattle.og_report_conditions.specs.Listings.{listing_text};
ghost use Rattle.og_report_conditions.specs.declared.form.Form.TheVariants as forms;

/// The listing of all conditions with their facts is the text that `conditions_text` makes. Does
/// nothing.
pub fn all_with_facts()
    ensures { (o : Program) (source : List ℕ) → listing_text forms.Facts None o source
        ≡ conditions_lines o.names source 1 (conditions o) }
{}
