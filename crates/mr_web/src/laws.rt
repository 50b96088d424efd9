ghost use Rattle.mr_web.specs.RequestLaw.{HasOneHead, AsksOneThing};

/// An input has one head or none. So it asks one thing only: a command, or the response to the first check that fails.
pub fn reading_law()
    ensures head { HasOneHead }
    ensures asked { AsksOneThing }
{}
