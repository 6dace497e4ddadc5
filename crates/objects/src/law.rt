//! Functions that carry what is proved of the definitions themselves.
ghost use Rattle.objects.specs.Examples.{Worked};
ghost use Rattle.objects.specs.Laws.{PrefixFree};

/// Of a complete object every proper beginning is incomplete, and nothing longer is complete.
pub fn objects_are_prefix_free()
    ensures { PrefixFree }
{}

/// The worked examples of objects and requests are as they are written down.
pub fn examples_stand()
    ensures { Worked }
{}
