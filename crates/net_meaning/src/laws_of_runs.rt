ghost use Rattle.net_meaning.specs.Blocks.{machine, exact};
ghost use Rattle.net_meaning.specs.RunLaws.{RunsAgree, TableIsRun};

/// Does nothing: its clauses say that for a valid network, over rows that have one value for each
/// input, the table that is computed row by row and wire by wire is a run, of the machine and of the
/// exact values.
pub fn table_is_a_run()
    ensures of_machine { TableIsRun machine }
    ensures of_exact { TableIsRun exact }
{}

/// Does nothing: its clauses say that a valid network has one run only over given rows, of the
/// machine and of the exact values.
pub fn runs_are_one()
    ensures of_machine { RunsAgree machine }
    ensures of_exact { RunsAgree exact }
{}
