//! Laws of forms, each the contract of a function that does nothing.
ghost use Rattle.std.specs.Prelude.{◌≡◌, List, ℕ, Some, true};
ghost use Rattle.dip_orders_lines.specs.Forms.{is_form, Says};
ghost use Rattle.dip_orders_lines.specs.Reading.{form_in};
ghost use Rattle.dip_orders_lines.specs.Texts.{canonical_text};
ghost use Rattle.dip_orders_lines.specs.declared.forms.Form.{Form};

/// A line says at most one form, which is what is read of it, and the one text of a form says it. A law: it does nothing.
pub fn forms_are_read()
    ensures said { (line : List ℕ) (d : Form) → Says line d → form_in line ≡ Some d }
    ensures read { (line : List ℕ) (d : Form) → form_in line ≡ Some d → Says line d }
    ensures again { (d : Form) → is_form d ≡ true → Says (canonical_text d) d }
{}
