// What is proved of reports: each function has a theorem for its contract, and answers nothing.
ghost use Rattle.report.specs.Examples.{ReportsHold};
ghost use Rattle.report.specs.Theorems.{ReportLaw};

// The report of a job that opens without a fault fits into its buffer.
pub fn report_law()
    ensures { ReportLaw }
{}

// Worked reports are as stated.
pub fn worked_report()
    ensures { ReportsHold }
{}
