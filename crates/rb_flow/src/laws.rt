//! The laws of the rules of instructions.

ghost use Rattle.rb_flow.specs.Laws.{FlowIsMonotone, RuleIsFlow};

/// The rule of each instruction is where it leads, and a stronger entry leads to stronger ones.
pub fn rules_are_flows()
    ensures rules { RuleIsFlow }
    ensures monotone { FlowIsMonotone }
{}
