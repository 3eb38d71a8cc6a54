//! What code promises of whose operands and names enough is known.

ghost use Rattle.ob_code.specs.Stuck.{MeasuredRunsSafely};

/// Code before each line of which so much is known of the operands and names is never stuck: wherever it is linked among such
/// modules, no run leaves it, misses an operand or a name, takes a cell out of an object, or goes on for ever without a turn or
/// a line.
pub fn measured_law()
    ensures { MeasuredRunsSafely }
{}
