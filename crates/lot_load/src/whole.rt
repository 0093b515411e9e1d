ghost use Rattle.std.specs.Prelude.{◌≡◌, OnOk};
ghost use Rattle.std.specs.BTreeSet.{InsertsAll, difference};
ghost use Rattle.lot_base.specs.Text.{text_cmp};
ghost use Rattle.lot_book.specs.Change.{pair_cmp};

use lot_view::Touched;
use std::alloc::AllocError;

/// Returns what of this isn't among what is known whole.
pub(crate) fn lacking(mut touched: Touched, whole: &Touched) -> Touched
    ensures accounts { result.accounts.keys
        ≡ difference text_cmp touched.accounts whole.now.accounts }
    ensures declared { result.declared.keys
        ≡ difference text_cmp touched.declared whole.now.declared }
    ensures pairs { result.pairs.keys ≡ difference pair_cmp touched.pairs whole.now.pairs }
    ensures plain { result.plain.keys ≡ difference text_cmp touched.plain whole.now.plain }
{
    touched
        .accounts
        .retain(|account| !whole.accounts.contains(account));
    touched
        .declared
        .retain(|commodity| !whole.declared.contains(commodity));
    touched.pairs.retain(|pair| !whole.pairs.contains(pair));
    touched
        .plain
        .retain(|account| !whole.plain.contains(account));
    touched
}

/// Adds to what is known whole. The error is out of memory.
pub(crate) fn add(whole: &mut Touched, mut more: Touched) -> Result<(), AllocError>
    ensures accounts { OnOk result
        (InsertsAll text_cmp whole.old.accounts more.accounts.keys whole.new.accounts) }
    ensures declared { OnOk result
        (InsertsAll text_cmp whole.old.declared more.declared.keys whole.new.declared) }
    ensures pairs { OnOk result
        (InsertsAll pair_cmp whole.old.pairs more.pairs.keys whole.new.pairs) }
    ensures plain { OnOk result
        (InsertsAll text_cmp whole.old.plain more.plain.keys whole.new.plain) }
{
    whole.accounts.append(&mut more.accounts)?;
    whole.declared.append(&mut more.declared)?;
    whole.pairs.append(&mut more.pairs)?;
    whole.plain.append(&mut more.plain)?;
    Ok(())
}
