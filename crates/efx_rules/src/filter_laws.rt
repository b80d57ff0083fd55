ghost use Rattle.efx_rules.specs.KeptRules.{AveragesAreMonotone, AveragesAreSound, DifferencesKeepRules, GainsKeepRules, LagsKeepRules, ValuesKeepRules};

/// Does nothing: its clauses are that the rules of the filters are sound and monotone. Where what a
/// rule reads is within its bounds, the rounded value lies in the range that it gives and within its
/// error of the exact value, and from narrower bounds it gives narrower ones.
pub fn law_of_filters()
    ensures gains { GainsKeepRules }
    ensures lags { LagsKeepRules }
    ensures differences { DifferencesKeepRules }
    ensures values { ValuesKeepRules }
    ensures averages { AveragesAreSound }
    ensures monotone_averages { AveragesAreMonotone }
{}
