// What the parts above may rely on, and the worked cases: theorems that the gate asks for, since contracts name them.
ghost use Rattle.cells.specs.Cases.{AllHold, cases};
ghost use Rattle.cells.specs.Laws.{Laws};

// Each formula's cell is tight for the values that its operands reach, and these grow with the operands; records read back.
pub fn laws_stand()
    ensures { Laws }
{}

// The worked cases come out as they should, by the definitions alone.
pub fn cases_stand()
    ensures { AllHold cases }
{}
