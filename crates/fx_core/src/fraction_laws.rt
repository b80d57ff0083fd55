// The six laws of fractions, from which the rules of certificates are shown sound.

ghost use Rattle.fx_fraction.specs.Laws.{LawOfAbsolutes, LawOfDifferences, LawOfFactors, LawOfGreater, LawOfLesser, LawOfProducts, LawOfQuotients, LawOfSums};
ghost use Rattle.fx_core.specs.FractionLaws.{LawOfRoundings};

/// Does nothing: its clauses are the six laws of how far fractions are apart. They hold of every fraction: sums and
/// differences, products, quotients by what isn't 0, absolute values and the lesser and the greater of two, rounding,
/// and a fixed factor.
pub fn laws_of_fractions()
    ensures sums { LawOfSums }
    ensures differences { LawOfDifferences }
    ensures products { LawOfProducts }
    ensures quotients { LawOfQuotients }
    ensures absolutes { LawOfAbsolutes }
    ensures lesser { LawOfLesser }
    ensures greater { LawOfGreater }
    ensures roundings { LawOfRoundings }
    ensures factors { LawOfFactors }
{}
