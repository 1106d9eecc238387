ghost use Rattle.nuc_world.specs.Accounted.{NothingIsLost};

/// No content is lost: whatever log led to a world, each version that an edit put stands there in the server's tree or in
/// the Local of a client, or a recorded edit replaced or deleted it, or it was adopted into another version of equal hash.
pub fn nothing_recorded_is_lost()
    ensures { NothingIsLost }
{}
