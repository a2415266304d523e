// What every run of a sheet keeps, and how the calls of the code carry runs on: theorems that the gate asks for, since contracts name
// them. The calls do nothing when a program runs.
ghost use Rattle.cells.specs.Cases.{AllHold};
ghost use Rattle.sheet.specs.CallLaws.{CallLaws};
ghost use Rattle.sheet.specs.Cases.{cases};
ghost use Rattle.sheet.specs.ColumnLaws.{ColumnLaws};
ghost use Rattle.sheet.specs.Histories.{Histories};
ghost use Rattle.sheet.specs.Promises.{Promises};
ghost use Rattle.sheet.specs.RefusalLaws.{RefusalLaws};

// The promises, over every list of what a sheet can be asked. They rest on the laws of cells and of layouts.
pub fn promises_hold()
    ensures { Promises }
{
    cells::laws::laws_stand();
    layouts::laws::laws_stand();
}

// Every call of the code, whatever history led to what it was supplied, carries the run on to what it answers and leaves.
pub fn runs_go_on()
    ensures { Histories }
{}

// The definitions of the calls come to what they should: a solve works row after row, its column solves its equations, and a refusal
// for a bound beyond the limit names the first one.
pub fn calls_stand()
    ensures { CallLaws }
{
    layouts::laws::laws_stand();
}

// When each call is granted, and what each refusal tells, in the words of the subject: these laws hold the table of checks.
pub fn refusals_stand()
    ensures { RefusalLaws }
{
    layouts::laws::laws_stand();
}

// What the questions about a column answer, row by row, of every column.
pub fn questions_stand()
    ensures { ColumnLaws }
{}

// The worked cases of the sheet, of layouts and of cells come out as they should, by the definitions alone.
pub fn cases_stand()
    ensures { AllHold cases }
{
    layouts::laws::cases_stand();
}
