// What the meaning of a device comes to.
ghost use Rattle.device.specs.Rules.{FatesAreRules};

// A call keeps the rules of devices, sentence by sentence, exactly if some fate explains its answer and what it leaves.
pub fn fates_are_rules()
    ensures { FatesAreRules }
{}
