//! What the arguments of the program ask for is done.

ghost use Rattle.std.specs.Prelude.{◌≡◌, ◌⊎◌, IfErr, IfOk, map};
ghost use Rattle.std.specs.String.{string_bytes};
ghost use Rattle.lot_host.specs.Run.{IsImported, IsMet, IsRun, IsShownBy};
ghost use Rattle.lot_host.specs.declared.stage.Stage.TheVariants.{Begun, Over, Warned};

use crate::action::act;
use crate::host::{Host, Task};
use lot_args::{Action, AskedImport, Effect, Notes, Request, parse_words};
use std::alloc::Global;

/// Does what arguments ask for, of which the first is the program's name, and returns the status of the program: the one at hand
/// where they couldn't be read.
pub fn run<H: Host>(host: &mut H, alloc: Global, words: Result<Vec<String>, u8>) -> u8
    requires { H.stage host.old ≡ Begun }
    ensures run { IfOk words (λ words. IsRun H.Host (map string_bytes words.items) result) }
    ensures over { IfOk words (λ _. H.stage host.new ≡ Over) }
    ensures unread { IfErr words (λ status. result ≡ status) }
    ensures idle { IfErr words (λ _. host.new ≡ host.old) }
{
    match words {
        Ok(words) => run_words(host, alloc, &words),
        Err(status) => status,
    }
}

/// Does what words ask for. Where they can't be used, or ask for help, that is said.
fn run_words<H: Host>(host: &mut H, alloc: Global, words: &[String]) -> u8
    requires { H.stage host.old ≡ Begun }
    ensures run { IsRun H.Host (map string_bytes words.now) result }
    ensures over { H.stage host.new ≡ Over }
{
    match parse_words(alloc, words) {
        Ok(request) => {
            host.warn(words, &request);
            meet(host, request)
        }
        Err(fault) => host.answer(words, &fault),
    }
}

/// Does what is asked for, and returns the status of the program.
fn meet<H: Host>(host: &mut H, request: Request) -> u8
    requires { H.stage host.old ≡ Warned }
    ensures met { IsMet H.Host request result }
    ensures over { H.stage host.new ≡ Over }
{
    match request {
        Request::Act {
            action,
            effect,
            notes,
        } => act(
            host,
            &Task {
                action,
                effect,
                notes,
            },
        ),
        Request::Import {
            profile,
            import,
            effect,
            notes,
        } => import_by(host, profile.as_str(), import, effect, notes),
        Request::Show { profile, notes } => show_by(host, profile.as_str(), notes),
        Request::Explain { code } => host.tell(code.as_deref()),
    }
}

/// Imports by the profile in the file of that path, and returns the status of the program.
fn import_by<H: Host>(
    host: &mut H,
    path: &str,
    import: AskedImport,
    effect: Effect,
    notes: Notes,
) -> u8
    requires { H.stage host.old ≡ Warned }
    ensures imported { H.refuses_profile path.now result
        ⊎ IsImported H.Host path.now import effect result }
    ensures over { H.stage host.new ≡ Over }
{
    match host.load(path) {
        Ok((profile, rounding)) => act(
            host,
            &Task {
                action: Action::ImportBy(import.with(profile, rounding)),
                effect,
                notes,
            },
        ),
        Err(status) => status,
    }
}

/// Shows what an export comes to by the profile in the file of that path, and returns the status of the program.
fn show_by<H: Host>(host: &mut H, path: &str, notes: Notes) -> u8
    requires { H.stage host.old ≡ Warned }
    ensures shown { H.refuses_profile path.now result ⊎ IsShownBy H.Host path.now result }
    ensures over { H.stage host.new ≡ Over }
{
    match host.load(path) {
        Ok((profile, _)) => host.show(&profile, notes),
        Err(status) => status,
    }
}
