// No code: theorems about the definitions of translating. They stand in specs/.
#![tactic(auto)]
