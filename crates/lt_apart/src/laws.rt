ghost use Rattle.lt_apart.specs.Telling.{OpenedIsOfScript, ScriptLasts, ToldIsServed};

/// A node that is opened for a script is one of that script, and stays so, whatever it does. What `told` says of its
/// sessions is what the law of all nodes' sessions asks of them.
pub fn law_remote()
    ensures opened { OpenedIsOfScript }
    ensures lasts { ScriptLasts }
    ensures told { ToldIsServed }
{}
