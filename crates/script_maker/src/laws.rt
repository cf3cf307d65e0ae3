//! The law that every script that is made may run.
ghost use Rattle.std.specs.Prelude.{ℕ};
ghost use Rattle.sql_base.specs.Scripts.{IsScript};
ghost use Rattle.script_maker.specs.Making.{made};

/// The script that is made from any number meets every rule.
pub fn made_scripts_meet_rules()
    ensures { (number : ℕ) → IsScript (made number) }
{}
