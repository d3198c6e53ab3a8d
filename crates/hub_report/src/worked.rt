// A report on an example. The function has nothing to compute: it stands here so that the proof is asked for.
ghost use Rattle.hub_report.specs.WorkedReport.{WorkedReport};

/// The report after the worked run is the text that stands in the specification.
pub fn worked_report_holds()
    ensures { WorkedReport }
{}
