ghost use Rattle.std.specs.Prelude.{◌≡◌, Some, None};
ghost use Rattle.dbe_config.specs.Setting.{Setting};
ghost use Rattle.dbe_config.specs.declared.fault.ConfigFault.{ConfigFault};
ghost use Rattle.dbe_config.specs.Order.{breaches, first_fault, AreKept, IsFirst};

/// A refusal comes exactly where its rule is broken and all rules before it are kept.
pub fn law_of_order()
    ensures first { (s : Setting) (fault : ConfigFault) → first_fault s ≡ Some fault → IsFirst (breaches s) fault }
    ensures only { (s : Setting) (fault : ConfigFault) → IsFirst (breaches s) fault → first_fault s ≡ Some fault }
    ensures none { (s : Setting) → first_fault s ≡ None → AreKept (breaches s) }
    ensures kept { (s : Setting) → AreKept (breaches s) → first_fault s ≡ None }
{}
