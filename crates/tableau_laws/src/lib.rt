//! What pivots, cuts and lowest terms keep of a table's meaning, and what the ends of the work say.
#![tactic(auto)]

ghost use Rattle.tableau_laws.specs.Laws.{TableLaws};

/// The laws hold.
pub fn table_laws_stand()
    ensures { TableLaws }
{}
