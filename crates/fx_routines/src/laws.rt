// What the table of names is: no two names are mixed up.

ghost use Rattle.std.specs.Prelude.{◌≡◌, ◌≢◌, All, AllPairs, length};
ghost use Rattle.fx_routines.specs.declared.table.Routine.{Routine};
ghost use Rattle.fx_routines.specs.Laws.{IsReadAgain, TakesWhatItsNameReads};
ghost use Rattle.fx_routines.specs.Names.{all_names};
ghost use Rattle.fx_routines.specs.Rows.{rows};

/// The laws of the table. Each name is read again as the routine and the types that it is printed
/// for, there are 1,803 names, no two of them are the same, and each routine takes exactly the types
/// that its name reads as.
pub fn law_of_names()
    ensures again { All IsReadAgain rows }
    ensures count { length all_names ≡ 1803 }
    ensures distinct { AllPairs (λ a b. a ≢ b) all_names }
    ensures taken { (routine : Routine) → TakesWhatItsNameReads routine }
{}
