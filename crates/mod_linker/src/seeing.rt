//! A program gets what is visible in its modules.
ghost use Rattle.std.specs.Prelude.{◌≡◌, ◌<◌, ◌∷◌, [], length, map, true, OnOk};
ghost use Rattle.std.specs.List.{AllByRecursion};
ghost use Rattle.std.specs.Prelude.{is_some};
ghost use Rattle.unit_model.specs.Views.{ind_view};
ghost use Rattle.pl_store.specs.Rules.{IsExisting};
ghost use Rattle.pl_store.specs.Runs.{number_of};
ghost use Rattle.mod_linker.specs.Keys.{AreKnown};
ghost use Rattle.mod_linker.specs.Rowing.{ShowsMore};
ghost use Rattle.mod_linker.specs.Showing.{shown_by, IsShowable};

use crate::key::Key;
use crate::known::Known;
use pl_atoms::{NameId, NoMemory, Remap};
use pl_store::{ProcId, Program};
use search_model::VisibleRow;
use unit_model::Ind;

/// Makes the procedures of these rows visible, the first one under each module, name and number of arguments.
pub fn see_all(
    program: &mut Program,
    known: &Known,
    rows: &[VisibleRow],
    remap: &Remap,
) -> Result<(), NoMemory>
    requires rows { AllByRecursion (IsShowable remap.now program.old) rows.now }
    requires known { AreKnown program.old known.now.numbers.entries }
    ensures { OnOk result (ShowsMore (map (shown_by remap.now) rows.now) program.old program.new) }
{
    for row in rows {
        see_row(program, known, row, remap)?;
    }
    Ok(())
}

fn see_row(
    program: &mut Program,
    known: &Known,
    row: &VisibleRow,
    remap: &Remap,
) -> Result<(), NoMemory>
    requires row { IsShowable remap.now program.old row.now }
    requires known { AreKnown program.old known.now.numbers.entries }
    ensures { OnOk result (ShowsMore (shown_by remap.now row.now ∷ []) program.old program.new) }
{
    let lookup = remap.get(row.module);
    let ind = Ind {
        name: remap.get(row.ind.name),
        arity: row.ind.arity,
    };
    let definer = remap.get(row.definer);
    see(program, known, lookup, ind, definer)
}

fn see(
    program: &mut Program,
    known: &Known,
    lookup: NameId,
    ind: Ind,
    definer: NameId,
) -> Result<(), NoMemory>
    requires lookup { IsExisting program.old lookup.0 }
    requires definer { is_some (number_of program.old definer.0 (ind_view ind)) ≡ true }
    requires known { AreKnown program.old known.now.numbers.entries }
    ensures { OnOk result (ShowsMore (record { of = lookup.0; ind = ind_view ind; definer = definer.0 } ∷ []) program.old program.new) }
{
    let seen = program.tables().procedure(lookup, ind.name, ind.arity);
    if seen.is_some() {
        return Ok(());
    }
    match known.get(Key::of(definer, ind)) {
        Some(number) => program.see(lookup, ind, ProcId(number)),
        None => unreachable!(),
    }
}
