ghost use Rattle.lt_nest_lines.specs.Answers.{outcome_of};
ghost use Rattle.lt_nest_lines.specs.Serves.{ServesLines};
ghost use Rattle.lt_law_any.specs.AnyCall.{CallSays};
ghost use Rattle.lt_law_any.specs.AnyNest.{NestSays};

use lt_io::{Sink, Source};

/// What an answer of the program on nested transactions says, of any words, source and sink, and of any bytes.
pub fn law_any_nest<S: Source, K: Sink>()
    ensures call { CallSays outcome_of (ServesLines S.state K.held K.faults K.pace) 1048576 S.state K.faults }
    ensures nest { NestSays S.state K.held K.faults K.pace }
{}
