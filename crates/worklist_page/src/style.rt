//! How the page looks.

/// The style, for the screen and for print. None of its characters needs a reference.
pub const STYLE: &str =
    "body{font-family:sans-serif;color:#111;background:#fff;margin:2em auto;max-width:60em}table{border-collapse:collapse;width:100%;margin:0 0 2em}caption{text-align:left;font-weight:bold;padding:.5em 0}th,td{border:1px solid #767676;padding:.25em .5em;text-align:left;vertical-align:top;overflow-wrap:break-word}tbody th{overflow-wrap:anywhere}.n{text-align:right}svg{display:block;width:12em;height:1em;outline:1px solid #767676}.linked{fill:#0b2545}.ambiguous{fill:#b06a10}.unlinked{fill:#e6e6e6}svg,rect{print-color-adjust:exact}@media print{body{margin:0}tr{break-inside:avoid}thead{display:table-header-group}}";
