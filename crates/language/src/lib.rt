//! Expressions and byte tables, and the rules that tables may break. The definitions are in specs/; each function here that does
//! nothing stands for a theorem on them, its contract, so that no check passes without the theorem's proof.
#![tactic(auto)]

ghost use Rattle.language.specs.Statements.{ExpressionsReadBack, ReadingsAreWritten, FormsArePrefixFree, WholeExpressionsAreWritten, ExpressionsAreReadFromTheFront, ValuesStayInRange, ComparisonsAreExact, ValuesGoBySight, RenamingExchangesNames, TablesReadBack, FaultsAreTheFirst, WorkedFaults, WorkedLevels};

mod rules;

pub use rules::Rule;

pub fn expressions_read_back()
    ensures { ExpressionsReadBack }
{}

pub fn readings_are_written()
    ensures { ReadingsAreWritten }
{}

pub fn forms_are_prefix_free()
    ensures { FormsArePrefixFree }
{}

pub fn whole_expressions_are_written()
    ensures { WholeExpressionsAreWritten }
{}

pub fn expressions_are_read_from_the_front()
    ensures { ExpressionsAreReadFromTheFront }
{}

pub fn values_stay_in_range()
    ensures { ValuesStayInRange }
{}

pub fn comparisons_are_exact()
    ensures { ComparisonsAreExact }
{}

pub fn values_go_by_sight()
    ensures { ValuesGoBySight }
{}

pub fn renaming_exchanges_names()
    ensures { RenamingExchangesNames }
{}

pub fn tables_read_back()
    ensures { TablesReadBack }
{}

pub fn faults_are_the_first()
    ensures { FaultsAreTheFirst }
{}

pub fn worked_faults()
    ensures { WorkedFaults }
{}

pub fn worked_levels()
    ensures { WorkedLevels }
{}
