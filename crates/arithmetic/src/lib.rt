// A shelf of mathematics: whole numbers, fractions, sets of fractions and the bounds that hold them.
// Nothing here runs on board; the parts above cite its definitions and its lemmas.
#![tactic(auto)]

ghost use Rattle.arithmetic.specs.Laws.{Laws};

// Floor and ceiling are what their names say, for every divisor but 0; a rounded exact value is tight; tight values grow with
// their sets, and a set has one at most.
pub fn laws_stand()
    ensures { Laws }
{}
