// The ten worked examples C1 to C10 of the scope, as one proved table over the definitions: specs/Examples.antt has it; and examples of bundles, specs/BundleExamples.antt. No code.

#![tactic(auto)]
