ghost use Rattle.lt_nest_lines.specs.Answers.{outcome_of as nest_outcome};
ghost use Rattle.lt_waits.specs.Answers.{outcome_of as report_outcome};
ghost use Rattle.lt_law_pinned.specs.PlainCalls.{PlainlyTold};
ghost use Rattle.lt_law_pinned.specs.NestCalls.{NestCodesAre, NestTextsAre, NestsTold, IsNestCall, one_waits};
ghost use Rattle.lt_law_pinned.specs.Reports.{ReportCodesAre, ReportTextsAre, ReportsTold, IsReportCall, writers_apart};

/// What an answer of the program that reports who waits for whom says, field by field, and its exit statuses and texts.
pub fn law_reports_told()
    ensures codes { ReportCodesAre }
    ensures texts { ReportTextsAre }
    ensures calls { PlainlyTold IsReportCall report_outcome 67108864 writers_apart }
    ensures reports { ReportsTold }
{}

/// What an answer of the program on nested transactions says, field by field, and its exit statuses and texts.
pub fn law_nests_told()
    ensures codes { NestCodesAre }
    ensures texts { NestTextsAre }
    ensures calls { PlainlyTold IsNestCall nest_outcome 1048576 one_waits }
    ensures nests { NestsTold }
{}
