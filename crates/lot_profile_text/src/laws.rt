//! What holds of the definitions that the contracts cite.
ghost use Rattle.std.specs.Prelude.{◌≡◌, ◌↔◌, ℕ, List};
ghost use Rattle.std.specs.List.{flat_map};
ghost use Rattle.lot_field.specs.Days.{AreDayParts};
ghost use Rattle.lot_field.specs.declared.days.DayForm.{DayForm};
ghost use Rattle.lot_profile.specs.declared.account.AccountOf.{AccountOf};
ghost use Rattle.lot_profile.specs.declared.account.AccountRole.{AccountRole};
ghost use Rattle.lot_profile_text.specs.Accounts.{account_in, piece_written};
ghost use Rattle.lot_profile_text.specs.Days.{day_form_in};

/// The pieces of an account, as they are written, are its text.
pub fn an_account_is_written_by_its_pieces()
    ensures { (role : AccountRole) (text : List ℕ) (account : AccountOf)
        → account_in role text ≡ Some account → text ≡ flat_map piece_written account.pieces }
{}

/// A text writes a form of days exactly where the form's parts are those of the text.
pub fn a_form_of_days_is_written_by_its_parts()
    ensures { (text : List ℕ) (form : DayForm)
        → (day_form_in text ≡ Some form) ↔ AreDayParts text form.parts }
{}
