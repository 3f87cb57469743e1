//! The log by itself.
ghost use Rattle.scheme.specs.declared.registries.Scheme.{Scheme};
ghost use Rattle.protocol.specs.Claims.{EndsStay, OwnedByInitiator, UnderWayApart};

/// Laws of the log alone, for all messages that it receives, even forged ones.
pub fn log_alone()
    ensures ends_stay { (scheme : Scheme) → EndsStay scheme }
    ensures apart { (scheme : Scheme) → UnderWayApart scheme }
    ensures owned { (scheme : Scheme) → OwnedByInitiator scheme }
{}
