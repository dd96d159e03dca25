//! Which endings the demo's run doesn't have.
ghost use Rattle.std.specs.Prelude.{ℕ, List, Err};
ghost use Rattle.mosaikrun_endings.specs.declared.ending.Ending.TheVariants as ends;
ghost use Rattle.mosaikrun_endings.specs.declared.links.LinkFault.{LinkFault};
ghost use Rattle.mosaikrun_run.specs.Outcomes.{Outside};
ghost use Rattle.mosaikrun_demo.specs.Outcomes.{IsDemoOutcome};

/// No simulator of the demo scenario has a link, so no ending of its run names one.
pub fn no_link_is_named()
    ensures { (O : Outside) → (size : ℕ) → (sim : List ℕ) → (fault : LinkFault)
        → IsDemoOutcome O size (Err (ends.Link sim fault)) → ⊥ }
{}
