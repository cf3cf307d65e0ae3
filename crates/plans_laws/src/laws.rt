//! The laws of plans and replies, each the contract of a function that does nothing.

ghost use Rattle.std.specs.Prelude.{List};
ghost use Rattle.sql_base.specs.Scripts.{IsScript};
ghost use Rattle.sql_base.specs.declared.scripts.Script.{Script};
ghost use Rattle.session_grammar.specs.UnderWay.{UnderWay};
ghost use Rattle.run_record.specs.declared.records.RunRecord.{RunRecord};
ghost use Rattle.record_laws.specs.SoFar.{LegalSoFar, RepliesFit, SendsFit};
ghost use Rattle.record_laws.specs.Suiting.{PlansSuit};
ghost use Rattle.plans_laws.specs.Asked.{PlansSpelled};
ghost use Rattle.plans_laws.specs.Spelled.{HistoriesSpelled, OpensSpelled, RepliesSpelled, StepsSpelled};

/// What plans ask of a partition suits it.
pub fn plans_suit()
    ensures { (script : Script) → IsScript script → PlansSuit script }
{}

/// In a record that is legal so far each reply in a history fits what was asked, and so does that to a request under way.
pub fn replies_fit()
    ensures replies { (script : Script) (kept : RunRecord) (ways : List UnderWay) → LegalSoFar script kept ways → RepliesFit kept }
    ensures sends { (script : Script) (kept : RunRecord) (ways : List UnderWay) → LegalSoFar script kept ways → SendsFit script kept ways }
{}

/// What plans ask can be spelled, and goes to partitions that are there.
pub fn plans_spelled()
    ensures { PlansSpelled }
{}

/// A partition opens with parts that can be spelled and stays so, and each reply to a request that came spelled can be spelled.
pub fn replies_spelled()
    ensures opens { OpensSpelled }
    ensures steps { StepsSpelled }
    ensures replies { RepliesSpelled }
    ensures histories { HistoriesSpelled }
{}
