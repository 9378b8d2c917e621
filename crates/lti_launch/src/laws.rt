// What holds of all launches.
ghost use Rattle.lti_launch.specs.Laws.{ValuesStand, WrittenIsRead};

/// Reading what was written gives the same launch.
pub fn written_is_read()
    ensures { WrittenIsRead }
{}

/// A parameter of the launch that pairs spell has the value that stands once under its name.
pub fn values_stand()
    ensures { ValuesStand }
{}
