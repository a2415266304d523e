// What the parts above may rely on, and the worked cases: theorems that the gate asks for, since contracts name them.
ghost use Rattle.cells.specs.Cases.{AllHold};
ghost use Rattle.layouts.specs.Cases.{cases};
ghost use Rattle.layouts.specs.Laws.{Laws};

// Each row formula's cell is tight for the values that its operands reach, and these grow with the operands. They rest on
// the laws of cells; the call does nothing when a program runs.
pub fn laws_stand()
    ensures { Laws }
{
    cells::laws::laws_stand();
}

// The worked cases of layouts and of cells come out as they should, by the definitions alone.
pub fn cases_stand()
    ensures { AllHold cases }
{
    cells::laws::cases_stand();
}
