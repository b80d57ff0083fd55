ghost use Rattle.fx_fraction.specs.Laws.{LawOfSame, LawOfOrder, LawOfNames, LawOfMonotoneSums, LawOfMonotoneFactors, LawOfSums, LawOfDifferences, LawOfFactors, LawOfProducts, LawOfQuotients, LawOfAbsolutes, LawOfLesser, LawOfGreater, LawOfTriangles, LawOfSymmetry, LawOfNoDistance, LawOfCommonSums, LawOfCommonOrder, LawOfErrors};

/// Does nothing: its clauses are the laws of fractions, their order and their distances, which
/// hold of every fraction.
pub fn laws_of_distances()
    ensures same { LawOfSame }
    ensures order { LawOfOrder }
    ensures names { LawOfNames }
    ensures monotone_sums { LawOfMonotoneSums }
    ensures monotone_factors { LawOfMonotoneFactors }
    ensures sums { LawOfSums }
    ensures differences { LawOfDifferences }
    ensures factors { LawOfFactors }
    ensures products { LawOfProducts }
    ensures quotients { LawOfQuotients }
    ensures absolutes { LawOfAbsolutes }
    ensures lesser { LawOfLesser }
    ensures greater { LawOfGreater }
    ensures triangles { LawOfTriangles }
    ensures symmetry { LawOfSymmetry }
    ensures no_distance { LawOfNoDistance }
    ensures common_sums { LawOfCommonSums }
    ensures common_order { LawOfCommonOrder }
    ensures errors { LawOfErrors }
{}
