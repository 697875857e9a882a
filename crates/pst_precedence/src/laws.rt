//! Laws: what it means to keep precedences, and that obstacles rule out the order in time.
ghost use Rattle.pst_precedence.specs.Before.{KeepingIsBefore};
ghost use Rattle.pst_precedence.specs.Laws.{ObstaclesRuleOutTime};

/// An interleaving keeps precedences if in it each earlier call is before its later one.
pub fn keeping_is_before()
    ensures { KeepingIsBefore }
{}

/// If a run has obstacles, no interleaving in the order of time explains it.
pub fn obstacles_rule_out_time()
    ensures { ObstaclesRuleOutTime }
{}
