// Loads by a pass without a window.
ghost use Rattle.std.specs.Prelude.{◌≡◌, None};
ghost use Rattle.seg_rule.specs.Words.{IsWord};
ghost use Rattle.seg_rule.specs.Looks.{MayLook};
ghost use Rattle.seg_rule.specs.Passes.{IsOf};
ghost use Rattle.queue_tries.specs.Loads.{ReadsAlone};

use seg_rule::{Entering, QueuePass, QueueTable, QueueWord};

/// A load that makes no entry.
pub(crate) fn load(table: &QueueTable, pass: &mut QueuePass, word: QueueWord) -> u64
    requires of { IsOf table.now pass.old }
    requires word { IsWord table.now.form.places table.now.form.slots word }
    requires may { MayLook word pass.old.view }
    requires window { pass.old.view.window ≡ None }
    ensures same { pass.new.table ≡ pass.old.table }
    ensures read { ReadsAlone word result pass.old.view pass.new.view }
{
    table.load(pass, word, Entering::Nothing)
}
