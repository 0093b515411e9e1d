ghost use Rattle.std.specs.Prelude.{◌≡◌, ◌≢◌, None, Some, IfSome};
ghost use Rattle.lot_command.specs.Canonical.{canonical};
ghost use Rattle.lot_command.specs.Sayable.{IsSayable};
ghost use Rattle.lot_command.specs.declared.command.Command.{Command as CommandOf};
ghost use Rattle.lot_legs.specs.Days.{day_in};

use lot_base::Day;

/// How many bytes the text of a day has.
const DAY_LENGTH: usize = 10;

/// Returns the day that the first ten bytes of a text name, or `None` where they name none. The canonical text of a command
/// begins with the day of the command.
pub fn day_at_front(text: &str) -> Option<Day>
    ensures day { IfSome result (λ day. day_in text.now ≡ Some day) }
    ensures none { result ≡ None → (command : CommandOf) → IsSayable command
        → text.now ≢ canonical command }
{
    let Some(front) = text.as_bytes().get(..DAY_LENGTH) else {
        return None;
    };
    let Ok(front) = str::from_utf8(front) else {
        return None;
    };
    Day::parse(front).ok()
}
