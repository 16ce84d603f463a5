// What a pipeline says to its steps. The Rust is the `globals` and `pipeline_is_inverted` of `parse_proj` of src/token/mod.rs.
ghost use Rattle.laws_proj.specs.Step.{Global};
ghost use Rattle.proj_steps.specs.Pipelines.{pipeline_of};

// What a pipeline says to its steps: its globals, and whether it is inverted.
#[derive(Clone, Copy, Drop)]
pub struct Pipe<'a> {
    pub globals: &'a [u8],
    pub inverted: bool,
    ghost global: { Global (pipeline_of globals.now inverted) },
}
