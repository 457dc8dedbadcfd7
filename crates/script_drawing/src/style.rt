//! The parts of an SVG that are the same in each.

/// The attributes of the picture after its size, the title, and the beginning of the description.
pub const FRONT: &str = " \
role=\"img\" aria-labelledby=\"title lines\">
<title id=\"title\">A flow script, step by step</title>
<desc id=\"lines\">";

/// The end of the description, and styles for a light background and for a dark one.
pub const STYLE: &str = "\
</desc>
<style>
text{font:13px ui-monospace,SFMono-Regular,Menlo,Consolas,'DejaVu Sans Mono',monospace;fill:#1f2328}
.p{fill:#ffffff}
.h{font-size:10px;fill:#59636e}
.n{text-anchor:middle}
.k{fill:#1f2328}
.s{fill:#59636e}
.z{stroke:#59636e;stroke-width:1.6}
.f{fill:#b3261e}
.x{stroke:#8c959f;stroke-width:2}
.d{stroke-dasharray:2 5}
.b{fill:#59636e}
.m{stroke:#59636e;stroke-width:1.2}
.w{fill:#ffffff;stroke-dasharray:3 3}
.l{fill:#eaeef2}
.e{fill:#ffffff}
.t{fill:#eaeef2}
.r{fill:#ffebe9}
@media (prefers-color-scheme:dark){
text{fill:#e6edf3}
.p,.w,.e{fill:#0d1117}
.h,.s{fill:#9198a1}
.k{fill:#1f2328}
.f{fill:#ff9a91}
.l,.t{fill:#262c36}
.r{fill:#4c1b1b}
.x,.m,.z{stroke:#9198a1}
.b{fill:#9198a1}
}
</style>
<rect class=\"p\" width=\"100%\" height=\"100%\"/>
";
